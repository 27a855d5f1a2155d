ghost use Rattle.std.specs.Prelude.{◌≡◌, Some, codes, find};
ghost use Rattle.std.specs.Str.{bytes_eq};
ghost use Rattle.numbers.specs.Common.{IsNamed, word_size, format_name, section_name, all_sections};

use std::fmt;
use std::str::FromStr;

// A text that is no name of what is looked for.
#[derive(Clone, Copy, Debug, PartialEq, Eq, Hash)]
pub struct UnknownName;

impl fmt::Display for UnknownName {
    ghost output = { λ _. Some (codes "the name is not known") };

    fn fmt<W: fmt::Write>(&self, f: &mut fmt::Formatter<W>) -> fmt::Result {
        f.write_str("the name is not known")
    }
}

// Whether a unit is in 32-bit or in 64-bit DWARF.
#[derive(Clone, Copy, Debug, PartialEq, Eq, Hash)]
pub enum Format {
    Dwarf32,
    Dwarf64,
}

impl Format {
    // The size of an offset or a length in this format.
    pub fn word_size(self) -> u8
        ensures { result ≡ word_size self }
    {
        match self {
            Format::Dwarf32 => 4,
            Format::Dwarf64 => 8,
        }
    }
}

// The name is the number of bits.
impl fmt::Display for Format {
    ghost output = { λ format. Some (format_name format) };

    fn fmt<W: fmt::Write>(&self, f: &mut fmt::Formatter<W>) -> fmt::Result {
        match self {
            Format::Dwarf32 => f.write_str("32"),
            Format::Dwarf64 => f.write_str("64"),
        }
    }
}

impl FromStr for Format {
    type Err = UnknownName;

    ghost from_str_gives = { IsNamed format_name };

    fn from_str(name: &str) -> Result<Format, UnknownName> {
        match name {
            "32" => Ok(Format::Dwarf32),
            "64" => Ok(Format::Dwarf64),
            _ => Err(UnknownName),
        }
    }
}

// A section that DWARF data stands in.
#[derive(Clone, Copy, Debug, PartialEq, Eq, Hash)]
pub enum SectionId {
    DebugAbbrev,
    DebugAddr,
    DebugAranges,
    DebugCuIndex,
    DebugFrame,
    EhFrame,
    EhFrameHdr,
    DebugGnuPubNames,
    DebugGnuPubTypes,
    DebugInfo,
    DebugLine,
    DebugLineStr,
    DebugLoc,
    DebugLocLists,
    DebugMacinfo,
    DebugMacro,
    DebugNames,
    DebugPubNames,
    DebugPubTypes,
    DebugRanges,
    DebugRngLists,
    DebugStr,
    DebugStrOffsets,
    DebugTuIndex,
    DebugTypes,
}

impl SectionId {
    // The sections, in the order of their names here.
    pub const ALL: [SectionId; 25] = [
        SectionId::DebugAbbrev,
        SectionId::DebugAddr,
        SectionId::DebugAranges,
        SectionId::DebugCuIndex,
        SectionId::DebugFrame,
        SectionId::EhFrame,
        SectionId::EhFrameHdr,
        SectionId::DebugGnuPubNames,
        SectionId::DebugGnuPubTypes,
        SectionId::DebugInfo,
        SectionId::DebugLine,
        SectionId::DebugLineStr,
        SectionId::DebugLoc,
        SectionId::DebugLocLists,
        SectionId::DebugMacinfo,
        SectionId::DebugMacro,
        SectionId::DebugNames,
        SectionId::DebugPubNames,
        SectionId::DebugPubTypes,
        SectionId::DebugRanges,
        SectionId::DebugRngLists,
        SectionId::DebugStr,
        SectionId::DebugStrOffsets,
        SectionId::DebugTuIndex,
        SectionId::DebugTypes,
    ];

    // The section's name in an ELF file.
    pub fn name(self) -> &'static str
        ensures { result.now ≡ section_name self }
    {
        match self {
            SectionId::DebugAbbrev => ".debug_abbrev",
            SectionId::DebugAddr => ".debug_addr",
            SectionId::DebugAranges => ".debug_aranges",
            SectionId::DebugCuIndex => ".debug_cu_index",
            SectionId::DebugFrame => ".debug_frame",
            SectionId::EhFrame => ".eh_frame",
            SectionId::EhFrameHdr => ".eh_frame_hdr",
            SectionId::DebugGnuPubNames => ".debug_gnu_pubnames",
            SectionId::DebugGnuPubTypes => ".debug_gnu_pubtypes",
            SectionId::DebugInfo => ".debug_info",
            SectionId::DebugLine => ".debug_line",
            SectionId::DebugLineStr => ".debug_line_str",
            SectionId::DebugLoc => ".debug_loc",
            SectionId::DebugLocLists => ".debug_loclists",
            SectionId::DebugMacinfo => ".debug_macinfo",
            SectionId::DebugMacro => ".debug_macro",
            SectionId::DebugNames => ".debug_names",
            SectionId::DebugPubNames => ".debug_pubnames",
            SectionId::DebugPubTypes => ".debug_pubtypes",
            SectionId::DebugRanges => ".debug_ranges",
            SectionId::DebugRngLists => ".debug_rnglists",
            SectionId::DebugStr => ".debug_str",
            SectionId::DebugStrOffsets => ".debug_str_offsets",
            SectionId::DebugTuIndex => ".debug_tu_index",
            SectionId::DebugTypes => ".debug_types",
        }
    }
}

impl fmt::Display for SectionId {
    ghost output = { λ id. Some (section_name id) };

    fn fmt<W: fmt::Write>(&self, f: &mut fmt::Formatter<W>) -> fmt::Result {
        f.write_str(self.name())
    }
}

impl FromStr for SectionId {
    type Err = UnknownName;

    ghost from_str_gives = { IsNamed section_name };

    fn from_str(name: &str) -> Result<SectionId, UnknownName> {
        section_named(name).ok_or(UnknownName)
    }
}

// The section that has a name. The search for a word of `texts` stands above this crate.
fn section_named(name: &str) -> Option<SectionId>
    ensures { result ≡ find (λ id. bytes_eq (section_name id) name.now) all_sections }
{
    SectionId::ALL.iter().copied().find(|id| id.name() == name)
}

// An address: a number, or a place relative to a symbol that the linker knows.
#[derive(Clone, Copy, Debug, PartialEq, Eq, Hash)]
pub enum Address {
    Constant(u64),
    Symbol { symbol: usize, addend: i64 },
}
