//! Laws of tokens (roff(7), "LANGUAGE SYNTAX").

ghost use Rattle.std.specs.Prelude.{◌≡◌, ◌<◌, ℕ, Bool, List, [], ◌∷◌, drop};
ghost use Rattle.page_core_escapes.specs.Tokens.{token_at, token_len, tokens_of};

/// The tokens of a text are its first one and those of what follows it: the number of tokens up to which their definition reads is no limit.
pub fn tokens_law()
    ensures none { (quoted : Bool) → tokens_of quoted [] ≡ [] }
    ensures first { (quoted : Bool) (text : List ℕ) → 0 < token_len quoted text
        → tokens_of quoted text ≡ token_at quoted text ∷ tokens_of quoted (drop (token_len quoted text) text) }
{}
