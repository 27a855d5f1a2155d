ghost use Rattle.std.specs.Prelude.{◌≡◌};
ghost use Rattle.sections.specs.Section.{Section, Ran};
ghost use Rattle.assemble.specs.Acts.{act_of};

use super::call::Call;
use writers::{
    Fault, LinkWriter, write_leb128, write_number, write_number_at, write_udata, write_udata_at,
};

// Runs a call on a writer.
pub fn apply<L: LinkWriter>(w: &mut L, call: &Call) -> Result<(), Fault>
    ensures { Ran (act_of L.LinkWriter.relocates call.now) (L.Writer.meaning w.old) (L.Writer.meaning w.new) result }
{
    match call {
        Call::Bytes(bytes) => w.write(bytes.as_slice()),
        Call::BytesAt(at, bytes) => w.write_at(*at, bytes.as_slice()),
        Call::U8(n) => write_number(w, *n),
        Call::U16(n) => write_number(w, *n),
        Call::U32(n) => write_number(w, *n),
        Call::U64(n) => write_number(w, *n),
        Call::U128(n) => write_number(w, *n),
        Call::U8At(at, n) => write_number_at(w, *at, *n),
        Call::U16At(at, n) => write_number_at(w, *at, *n),
        Call::U32At(at, n) => write_number_at(w, *at, *n),
        Call::U64At(at, n) => write_number_at(w, *at, *n),
        Call::U128At(at, n) => write_number_at(w, *at, *n),
        Call::Udata(n, size) => write_udata(w, *n, *size),
        Call::UdataAt(at, n, size) => write_udata_at(w, *at, *n, *size),
        Call::Uleb128(n) => write_leb128(w, *n),
        Call::Sleb128(n) => write_leb128(w, *n),
        Call::Address(address, size) => w.write_address(*address, *size),
        Call::Offset(n, section, size) => w.write_offset(*n, *section, *size),
        Call::OffsetAt(at, n, section, size) => w.write_offset_at(*at, *n, *section, *size),
        Call::Reference(symbol, size) => w.write_reference(*symbol, *size),
    }
}
