//! Regions: lines that are collected, passed over or given as they are written, up to a line that ends them (roff(7),
//! "de", "am", "ig", "TS", "EQ", "PS").

ghost use Rattle.std.specs.Prelude.{◌≡◌};
ghost use Rattle.page_roff_syntax.specs.Regions.{region_name, fixed_ending};
ghost use Rattle.page_roff_syntax.specs.laws.Views.{text_view};

/// The request or macro that begins a region.
#[derive(Clone, Copy)]
pub enum RegionKind {
    /// `de`: the body of a macro.
    Define,
    /// `am`: more of the body of a macro.
    Append,
    /// `ig`: lines that are ignored.
    Ignore,
    /// `TS`: a table.
    Table,
    /// `EQ`: an equation.
    Equation,
    /// `PS`: a picture.
    Picture,
}

impl RegionKind {
    /// The name that begins it.
    pub fn name(self) -> &'static [u8]
        ensures { result.now ≡ region_name self }
    {
        match self {
            RegionKind::Define => b"de",
            RegionKind::Append => b"am",
            RegionKind::Ignore => b"ig",
            RegionKind::Table => b"TS",
            RegionKind::Equation => b"EQ",
            RegionKind::Picture => b"PS",
        }
    }

    /// The name that ends it, where its head may not choose one.
    pub fn fixed_ending(self) -> Option<&'static [u8]>
        ensures { text_view result ≡ fixed_ending self }
    {
        match self {
            RegionKind::Define | RegionKind::Append | RegionKind::Ignore => None,
            RegionKind::Table => Some(b"TE"),
            RegionKind::Equation => Some(b"EN"),
            RegionKind::Picture => Some(b"PE"),
        }
    }
}
