//! The table of glyphs by their names, and their spellings by characters; each sorted by what is looked up.
ghost use Rattle.std.specs.Prelude.{◌≡◌, ◌≤◌, ◌∷◌, [], length, option_map, IsTrue};
ghost use Rattle.page_core_tables.specs.laws.Views.{entries, symbol_of};
ghost use Rattle.page_core_tables.specs.Glyphs.{name_key, symbol_at, table};
ghost use Rattle.page_core_tables.specs.machine.Rows.{keys_rise, rows_are_spelled, spellings_have_rows, are_characters_from};

/// A character and its spelling in ASCII, which is empty where it has none.
#[derive(Clone, Copy)]
pub struct Glyph {
    pub code: char,
    pub ascii: &'static str,
}

/// What is looked up, as a number; a character; and its spelling in ASCII.
pub(crate) type Row = (u32, char, &'static str);

// The key of a name of two bytes.
pub(crate) fn name_key(first: u8, second: u8) -> u32
    ensures { result ≡ name_key first second }
{
    first as u32 * 256 + second as u32
}

// The glyph of a key, by binary search.
pub(crate) fn find(rows: &[Row], key: u32) -> Option<Glyph>
    requires { IsTrue (keys_rise 0 (entries rows.now)) }
    ensures { option_map symbol_of result ≡ symbol_at (entries rows.now) key }
{
    match rows.binary_search_by_key(&key, |row| row.0) {
        Ok(place) => Some(Glyph {
            code: rows[place].1,
            ascii: rows[place].2,
        }),
        Err(_) => None,
    }
}

// The glyphs by their names.
pub(crate) fn by_name() -> &'static [Row]
    ensures rows { entries result.now ≡ table }
    ensures rising { IsTrue (keys_rise 0 (entries result.now)) }
{
    &GLYPHS
}

// The characters that have a spelling, by their code points.
pub(crate) fn by_code() -> &'static [Row]
    ensures rising { IsTrue (keys_rise 0 (entries result.now)) }
    ensures spelled { IsTrue (rows_are_spelled (entries result.now)) }
    ensures complete { IsTrue (spellings_have_rows (entries result.now)) }
{
    &SPELLINGS
}

// The characters from a blank to `~`, a text each.
fn characters() -> &'static [&'static str]
    ensures in_order { IsTrue (are_characters_from 0x20 result.now) }
    ensures count { length result.now ≡ 95 }
{
    &CHARACTERS
}

// A character from a blank to `~` as a text.
pub(crate) fn ascii(c: char) -> &'static str
    requires from_blank { 0x20 ≤ c }
    requires to_tilde { c ≤ 0x7E }
    ensures { result.now ≡ c ∷ [] }
{
    characters()[c as usize - 0x20]
}

macro_rules! named {
    ($name:literal, $code:literal, $ascii:literal) => {
        ($name[0] as u32 * 256 + $name[1] as u32, $code, $ascii)
    };
}

macro_rules! coded {
    ($code:literal, $ascii:literal) => {
        ($code as u32, $code, $ascii)
    };
}

// The table: the names by their bytes, a character, and its spelling in ASCII.
static GLYPHS: [(u32, char, &str); 146] = [
    named!(b"!=", '\u{2260}', "!="),
    named!(b"'A", '\u{C1}', "A"),
    named!(b"'E", '\u{C9}', "E"),
    named!(b"'I", '\u{CD}', "I"),
    named!(b"'O", '\u{D3}', "O"),
    named!(b"'U", '\u{DA}', "U"),
    named!(b"'a", '\u{E1}', "a"),
    named!(b"'e", '\u{E9}', "e"),
    named!(b"'i", '\u{ED}', "i"),
    named!(b"'o", '\u{F3}', "o"),
    named!(b"'u", '\u{FA}', "u"),
    named!(b"**", '\u{2217}', "*"),
    named!(b"*D", '\u{394}', "<Delta>"),
    named!(b"*S", '\u{3A3}', "<Sigma>"),
    named!(b"*W", '\u{3A9}', "<Omega>"),
    named!(b"*a", '\u{3B1}', "<alpha>"),
    named!(b"*b", '\u{3B2}', "<beta>"),
    named!(b"*d", '\u{3B4}', "<delta>"),
    named!(b"*g", '\u{3B3}', "<gamma>"),
    named!(b"*l", '\u{3BB}', "<lambda>"),
    named!(b"*m", '\u{3BC}', "<mu>"),
    named!(b"*p", '\u{3C0}', "<pi>"),
    named!(b"*s", '\u{3C3}', "<sigma>"),
    named!(b"+-", '\u{B1}', "+-"),
    named!(b",C", '\u{C7}', "C"),
    named!(b",c", '\u{E7}', "c"),
    named!(b"->", '\u{2192}', "->"),
    named!(b"/O", '\u{D8}', "O"),
    named!(b"/o", '\u{F8}', "o"),
    named!(b"12", '\u{BD}', "1/2"),
    named!(b"14", '\u{BC}', "1/4"),
    named!(b"34", '\u{BE}', "3/4"),
    named!(b":A", '\u{C4}', "A"),
    named!(b":O", '\u{D6}', "O"),
    named!(b":U", '\u{DC}', "U"),
    named!(b":a", '\u{E4}', "a"),
    named!(b":e", '\u{EB}', "e"),
    named!(b":i", '\u{EF}', "i"),
    named!(b":o", '\u{F6}', "o"),
    named!(b":u", '\u{FC}', "u"),
    named!(b"<-", '\u{2190}', "<-"),
    named!(b"<=", '\u{2264}', "<="),
    named!(b"<>", '\u{2194}', "<->"),
    named!(b"==", '\u{2261}', "=="),
    named!(b">=", '\u{2265}', ">="),
    named!(b"AE", '\u{C6}', "AE"),
    named!(b"AN", '\u{2227}', "^"),
    named!(b"Bq", '\u{201E}', ",,"),
    named!(b"Do", '\u{24}', "$"),
    named!(b"Eu", '\u{20AC}', "EUR"),
    named!(b"Fc", '\u{BB}', ">>"),
    named!(b"Fo", '\u{AB}', "<<"),
    named!(b"OK", '\u{2713}', ""),
    named!(b"OR", '\u{2228}', "v"),
    named!(b"Po", '\u{A3}', ""),
    named!(b"S1", '\u{B9}', "1"),
    named!(b"S2", '\u{B2}', "2"),
    named!(b"S3", '\u{B3}', "3"),
    named!(b"Ye", '\u{A5}', ""),
    named!(b"^a", '\u{E2}', "a"),
    named!(b"^e", '\u{EA}', "e"),
    named!(b"^i", '\u{EE}', "i"),
    named!(b"^o", '\u{F4}', "o"),
    named!(b"^u", '\u{FB}', "u"),
    named!(b"`a", '\u{E0}', "a"),
    named!(b"`e", '\u{E8}', "e"),
    named!(b"`i", '\u{EC}', "i"),
    named!(b"`o", '\u{F2}', "o"),
    named!(b"`u", '\u{F9}', "u"),
    named!(b"aa", '\u{B4}', "'"),
    named!(b"ae", '\u{E6}', "ae"),
    named!(b"aq", '\u{27}', "'"),
    named!(b"at", '\u{40}', "@"),
    named!(b"ba", '\u{7C}', "|"),
    named!(b"bq", '\u{201A}', ","),
    named!(b"br", '\u{2502}', "|"),
    named!(b"bu", '\u{2022}', "o"),
    named!(b"ca", '\u{2229}', ""),
    named!(b"ci", '\u{25CB}', "O"),
    named!(b"co", '\u{A9}', "(C)"),
    named!(b"cq", '\u{2019}', "'"),
    named!(b"ct", '\u{A2}', ""),
    named!(b"cu", '\u{222A}', ""),
    named!(b"da", '\u{2193}', "v"),
    named!(b"dd", '\u{2021}', ""),
    named!(b"de", '\u{B0}', "<deg>"),
    named!(b"dg", '\u{2020}', ""),
    named!(b"di", '\u{F7}', "/"),
    named!(b"dq", '\u{22}', "\""),
    named!(b"em", '\u{2014}', "--"),
    named!(b"en", '\u{2013}', "-"),
    named!(b"eq", '\u{3D}', "="),
    named!(b"es", '\u{2205}', ""),
    named!(b"eu", '\u{20AC}', "EUR"),
    named!(b"fa", '\u{2200}', ""),
    named!(b"fc", '\u{203A}', ">"),
    named!(b"fm", '\u{2032}', "'"),
    named!(b"fo", '\u{2039}', "<"),
    named!(b"ga", '\u{60}', "`"),
    named!(b"gr", '\u{2207}', ""),
    named!(b"hA", '\u{21D4}', "<=>"),
    named!(b"ha", '\u{5E}', "^"),
    named!(b"hy", '\u{2010}', "-"),
    named!(b"if", '\u{221E}', ""),
    named!(b"lA", '\u{21D0}', "<="),
    named!(b"lB", '\u{5B}', "["),
    named!(b"lC", '\u{7B}', "{"),
    named!(b"la", '\u{27E8}', "<"),
    named!(b"lq", '\u{201C}', "\""),
    named!(b"lz", '\u{25CA}', ""),
    named!(b"mi", '\u{2212}', "-"),
    named!(b"mo", '\u{2208}', ""),
    named!(b"mu", '\u{D7}', "x"),
    named!(b"no", '\u{AC}', "~"),
    named!(b"oA", '\u{C5}', "A"),
    named!(b"oa", '\u{E5}', "a"),
    named!(b"oq", '\u{2018}', "`"),
    named!(b"pd", '\u{2202}', ""),
    named!(b"pl", '\u{2B}', "+"),
    named!(b"ps", '\u{B6}', ""),
    named!(b"r!", '\u{A1}', ""),
    named!(b"r?", '\u{BF}', ""),
    named!(b"rA", '\u{21D2}', "=>"),
    named!(b"rB", '\u{5D}', "]"),
    named!(b"rC", '\u{7D}', "}"),
    named!(b"ra", '\u{27E9}', ">"),
    named!(b"rg", '\u{AE}', "(R)"),
    named!(b"rq", '\u{201D}', "\""),
    named!(b"rs", '\u{5C}', "\\"),
    named!(b"sc", '\u{A7}', "<S>"),
    named!(b"sd", '\u{2033}', "\""),
    named!(b"sh", '\u{23}', "#"),
    named!(b"sl", '\u{2F}', "/"),
    named!(b"sq", '\u{25A1}', ""),
    named!(b"sr", '\u{221A}', ""),
    named!(b"ss", '\u{DF}', "ss"),
    named!(b"te", '\u{2203}', ""),
    named!(b"ti", '\u{7E}', "~"),
    named!(b"tm", '\u{2122}', "(TM)"),
    named!(b"ua", '\u{2191}', "^"),
    named!(b"ul", '\u{5F}', "_"),
    named!(b"~N", '\u{D1}', "N"),
    named!(b"~a", '\u{E3}', "a"),
    named!(b"~n", '\u{F1}', "n"),
    named!(b"~o", '\u{F5}', "o"),
    named!(b"~~", '\u{2248}', "~~"),
];

// The characters of the table that have a spelling, by their code points.
static SPELLINGS: [(u32, char, &str); 124] = [
    coded!('\u{22}', "\""),
    coded!('\u{23}', "#"),
    coded!('\u{24}', "$"),
    coded!('\u{27}', "'"),
    coded!('\u{2B}', "+"),
    coded!('\u{2F}', "/"),
    coded!('\u{3D}', "="),
    coded!('\u{40}', "@"),
    coded!('\u{5B}', "["),
    coded!('\u{5C}', "\\"),
    coded!('\u{5D}', "]"),
    coded!('\u{5E}', "^"),
    coded!('\u{5F}', "_"),
    coded!('\u{60}', "`"),
    coded!('\u{7B}', "{"),
    coded!('\u{7C}', "|"),
    coded!('\u{7D}', "}"),
    coded!('\u{7E}', "~"),
    coded!('\u{A7}', "<S>"),
    coded!('\u{A9}', "(C)"),
    coded!('\u{AB}', "<<"),
    coded!('\u{AC}', "~"),
    coded!('\u{AE}', "(R)"),
    coded!('\u{B0}', "<deg>"),
    coded!('\u{B1}', "+-"),
    coded!('\u{B2}', "2"),
    coded!('\u{B3}', "3"),
    coded!('\u{B4}', "'"),
    coded!('\u{B9}', "1"),
    coded!('\u{BB}', ">>"),
    coded!('\u{BC}', "1/4"),
    coded!('\u{BD}', "1/2"),
    coded!('\u{BE}', "3/4"),
    coded!('\u{C1}', "A"),
    coded!('\u{C4}', "A"),
    coded!('\u{C5}', "A"),
    coded!('\u{C6}', "AE"),
    coded!('\u{C7}', "C"),
    coded!('\u{C9}', "E"),
    coded!('\u{CD}', "I"),
    coded!('\u{D1}', "N"),
    coded!('\u{D3}', "O"),
    coded!('\u{D6}', "O"),
    coded!('\u{D7}', "x"),
    coded!('\u{D8}', "O"),
    coded!('\u{DA}', "U"),
    coded!('\u{DC}', "U"),
    coded!('\u{DF}', "ss"),
    coded!('\u{E0}', "a"),
    coded!('\u{E1}', "a"),
    coded!('\u{E2}', "a"),
    coded!('\u{E3}', "a"),
    coded!('\u{E4}', "a"),
    coded!('\u{E5}', "a"),
    coded!('\u{E6}', "ae"),
    coded!('\u{E7}', "c"),
    coded!('\u{E8}', "e"),
    coded!('\u{E9}', "e"),
    coded!('\u{EA}', "e"),
    coded!('\u{EB}', "e"),
    coded!('\u{EC}', "i"),
    coded!('\u{ED}', "i"),
    coded!('\u{EE}', "i"),
    coded!('\u{EF}', "i"),
    coded!('\u{F1}', "n"),
    coded!('\u{F2}', "o"),
    coded!('\u{F3}', "o"),
    coded!('\u{F4}', "o"),
    coded!('\u{F5}', "o"),
    coded!('\u{F6}', "o"),
    coded!('\u{F7}', "/"),
    coded!('\u{F8}', "o"),
    coded!('\u{F9}', "u"),
    coded!('\u{FA}', "u"),
    coded!('\u{FB}', "u"),
    coded!('\u{FC}', "u"),
    coded!('\u{394}', "<Delta>"),
    coded!('\u{3A3}', "<Sigma>"),
    coded!('\u{3A9}', "<Omega>"),
    coded!('\u{3B1}', "<alpha>"),
    coded!('\u{3B2}', "<beta>"),
    coded!('\u{3B3}', "<gamma>"),
    coded!('\u{3B4}', "<delta>"),
    coded!('\u{3BB}', "<lambda>"),
    coded!('\u{3BC}', "<mu>"),
    coded!('\u{3C0}', "<pi>"),
    coded!('\u{3C3}', "<sigma>"),
    coded!('\u{2010}', "-"),
    coded!('\u{2013}', "-"),
    coded!('\u{2014}', "--"),
    coded!('\u{2018}', "`"),
    coded!('\u{2019}', "'"),
    coded!('\u{201A}', ","),
    coded!('\u{201C}', "\""),
    coded!('\u{201D}', "\""),
    coded!('\u{201E}', ",,"),
    coded!('\u{2022}', "o"),
    coded!('\u{2032}', "'"),
    coded!('\u{2033}', "\""),
    coded!('\u{2039}', "<"),
    coded!('\u{203A}', ">"),
    coded!('\u{20AC}', "EUR"),
    coded!('\u{2122}', "(TM)"),
    coded!('\u{2190}', "<-"),
    coded!('\u{2191}', "^"),
    coded!('\u{2192}', "->"),
    coded!('\u{2193}', "v"),
    coded!('\u{2194}', "<->"),
    coded!('\u{21D0}', "<="),
    coded!('\u{21D2}', "=>"),
    coded!('\u{21D4}', "<=>"),
    coded!('\u{2212}', "-"),
    coded!('\u{2217}', "*"),
    coded!('\u{2227}', "^"),
    coded!('\u{2228}', "v"),
    coded!('\u{2248}', "~~"),
    coded!('\u{2260}', "!="),
    coded!('\u{2261}', "=="),
    coded!('\u{2264}', "<="),
    coded!('\u{2265}', ">="),
    coded!('\u{2502}', "|"),
    coded!('\u{25CB}', "O"),
    coded!('\u{27E8}', "<"),
    coded!('\u{27E9}', ">"),
];

static CHARACTERS: [&str; 95] = [
    " ", "!", "\"", "#", "$", "%", "&", "'", "(", ")", "*", "+", ",", "-", ".", "/", "0", "1", "2",
    "3", "4", "5", "6", "7", "8", "9", ":", ";", "<", "=", ">", "?", "@", "A", "B", "C", "D", "E",
    "F", "G", "H", "I", "J", "K", "L", "M", "N", "O", "P", "Q", "R", "S", "T", "U", "V", "W", "X",
    "Y", "Z", "[", "\\", "]", "^", "_", "`", "a", "b", "c", "d", "e", "f", "g", "h", "i", "j", "k",
    "l", "m", "n", "o", "p", "q", "r", "s", "t", "u", "v", "w", "x", "y", "z", "{", "|", "}", "~",
];
