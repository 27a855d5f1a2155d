ghost use Rattle.std.specs.Prelude.{◌≡◌};

use super::*;
use std::test::Fail;

fn comes_back<E: Endianity, T: Number<N>, const N: usize>(endian: E, n: T) -> T
    ensures { result ≡ n }
{
    decode(endian, encode(endian, n))
}

fn round_trips<E: Endianity>(endian: E) -> bool {
    comes_back(endian, 0x81_u8) == 0x81
        && comes_back(endian, 0x8142_u16) == 0x8142
        && comes_back(endian, 0x8142_6304_u32) == 0x8142_6304
        && comes_back(endian, 0x8142_6304_0502_0701_u64) == 0x8142_6304_0502_0701
        && comes_back(endian, 0x8142_6304_0502_0701_1122_3344_5566_7788_u128)
            == 0x8142_6304_0502_0701_1122_3344_5566_7788
}

#[test]
fn orders(rt: HostRuntime) -> Result<(), Fail> {
    assert!(rt; round_trips(LittleEndian));
    assert!(rt; round_trips(BigEndian));
    assert!(rt; round_trips(RunTimeEndian::Big));
    let three = encode_u24(RunTimeEndian::Big, 0xa1_b2c3).ok_or("too large")?;
    assert!(rt; three[0] == 0xa1 && three[2] == 0xc3);
    assert!(rt; decode_u24(RunTimeEndian::Little, three) == 0xc3_b2a1);
    assert!(rt; encode_u24(LittleEndian, 0x100_0000).is_none());
    Ok(())
}

#[test]
fn leb(rt: HostRuntime) {
    let up = Leb128::new(624_485_u64);
    assert_eq!(rt; up.bytes(), [0xe5, 0x8e, 0x26].as_slice());
    let down = Leb128::new(-123_456_i64);
    assert_eq!(rt; down.bytes(), [0xc0, 0xbb, 0x78].as_slice());
    assert_eq!(rt; leb128_size(u64::MAX), 10);
    assert_eq!(rt; leb128_size(-65_i64), 2);
}

#[test]
fn names(rt: HostRuntime) -> Result<(), Fail> {
    assert_eq!(rt; SectionId::DebugStrOffsets.name(), ".debug_str_offsets");
    assert!(rt; ".debug_str".parse() == Ok(SectionId::DebugStr));
    assert!(rt; "debug_str".parse::<SectionId>().is_err());
    assert!(rt; "big".parse() == Ok(RunTimeEndian::Big));
    assert!(rt; "64".parse() == Ok(Format::Dwarf64));
    let line = format!(in rt.alloc();
        "{} {} {}",
        SectionId::EhFrame,
        RunTimeEndian::Little,
        Format::Dwarf32
    )?;
    assert_eq!(rt; line.as_str(), ".eh_frame little 32");
    Ok(())
}
