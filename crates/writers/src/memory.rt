ghost use Rattle.std.specs.Prelude.{◌≡◌, ◌+◌, ◌≤◌, ◌++◌, length, drop};
ghost use Rattle.sections.specs.Section.{over};
ghost use Rattle.writers.specs.Memory.{section_room, Appended, Placed};

use sections::Fault;

// The longest section.
pub const SECTION_LIMIT: usize = 2_147_483_647;

// How many bytes a section over memory can have.
pub fn room(memory: &[u8]) -> usize
    ensures { result ≡ section_room memory.now }
{
    memory.len().min(SECTION_LIMIT)
}

// Appends to a section that is the first `len` bytes of memory, and answers its new length.
// Memory and length stay two arguments here and below: a struct of both would lend the memory anew for each call.
pub fn append_front(memory: &mut [u8], len: usize, bytes: &[u8]) -> Result<usize, Fault>
    requires { len ≤ section_room memory.old }
    ensures { Appended len bytes.now memory.old memory.new result }
{
    if room(memory) - len < bytes.len() {
        return Err(Fault::SectionFull);
    }
    overwrite(memory, len, bytes);
    Ok(len + bytes.len())
}

// Overwrites the middle of a section that is the first `len` bytes of memory.
pub fn place_front(memory: &mut [u8], len: usize, offset: usize, bytes: &[u8]) -> Result<(), Fault>
    requires { len ≤ section_room memory.old }
    ensures { Placed len offset bytes.now memory.old memory.new result }
{
    if offset > len {
        return Err(Fault::OffsetOutOfBounds);
    }
    if bytes.len() > len - offset {
        return Err(Fault::LengthOutOfBounds);
    }
    overwrite(memory, offset, bytes);
    Ok(())
}

// Overwrites the middle of memory; all other places stay.
fn overwrite(memory: &mut [u8], offset: usize, bytes: &[u8])
    requires { offset + length bytes.now ≤ length memory.old }
    ensures { memory.new ≡ over offset bytes.now memory.old }
{
    copy_front(&mut memory[offset..], bytes);
}

// Copies bytes to the front of memory.
fn copy_front(to: &mut [u8], bytes: &[u8])
    requires { length bytes.now ≤ length to.old }
    ensures { to.new ≡ bytes.now ++ drop (length bytes.now) to.old }
{
    let n = bytes.len();
    to[0..n].copy_from_slice(bytes);
}
