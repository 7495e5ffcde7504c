// The sections of a model file, in the order in which they stand.
ghost use Rattle.std.specs.Prelude.{◌≡◌, ◌+◌, ◌*◌, ◌<◌};
ghost use Rattle.model.specs.File.{unit, least, most};
ghost use Rattle.model.specs.Sections.{place};

#[derive(Clone, Copy, PartialEq, Eq, Debug)]
pub(crate) enum Section {
    Masks,
    Rows,
    Definitions,
}

// The sections by their places.
pub(crate) const SECTIONS: [Section; 3] = [Section::Masks, Section::Rows, Section::Definitions];

impl Section {
    // Where the head of the file has the section's offset, and its size after it.
    pub(crate) fn head(self) -> usize
        ensures { result ≡ 4 + 8 * place self }
    {
        match self {
            Section::Masks => 4,
            Section::Rows => 12,
            Section::Definitions => 20,
        }
    }

    // The bytes of one entry.
    pub(crate) fn unit(self) -> u32
        ensures value { result ≡ unit (place self) }
        ensures some { 0 < result }
    {
        match self {
            Section::Masks | Section::Rows => 8,
            Section::Definitions => 2,
        }
    }

    // The least number of entries.
    pub(crate) fn least(self) -> u32
        ensures { result ≡ least (place self) }
    {
        match self {
            Section::Masks | Section::Definitions => 0,
            Section::Rows => 1,
        }
    }

    // The largest number of entries.
    pub(crate) fn most(self) -> u32
        ensures { result ≡ most (place self) }
    {
        match self {
            Section::Masks | Section::Definitions => 64,
            Section::Rows => 4096,
        }
    }
}
