//! Lists of bits, written as texts of 0 and 1.

use std::alloc::Global;
use std::test::Fail;
use tt_bits::Bits;

const OF_63: &str = "101010101010101010101010101010101010101010101010101010101010101";

const OF_64: &str = "1010101010101010101010101010101010101010101010101010101010101010";

const OF_65: &str = "10101010101010101010101010101010101010101010101010101010101010101";

fn bits_of(alloc: Global, text: &str) -> Result<Bits, Fail> {
    let mut bits = Bits::filled(alloc, 0, false)?;
    for byte in text.as_bytes() {
        bits.push(*byte == b'1')?;
    }
    Ok(bits)
}

fn shows(bits: &Bits, text: &str) -> bool {
    if bits.len() != text.len() || bits.get(text.len()).is_some() {
        return false;
    }
    for (place, byte) in text.as_bytes().iter().enumerate() {
        if bits.get(place) != Some(*byte == b'1') {
            return false;
        }
    }
    true
}

#[test]
fn pushed_bits_are_told_again(rt: HostRuntime) -> Result<(), Fail> {
    let alloc = rt.alloc();
    for (text, count) in [
        ("", 0),
        ("0", 0),
        ("1", 1),
        ("0110", 2),
        (OF_63, 32),
        (OF_64, 32),
        (OF_65, 33),
    ] {
        let bits = bits_of(alloc, text)?;
        assert!(rt; shows(&bits, text), "of {text}");
        assert_eq!(rt; bits.count(), count, "of {text}");
        assert_eq!(rt; bits.is_empty(), text.is_empty());
    }
    Ok(())
}

#[test]
fn filled_bits_are_all_alike(rt: HostRuntime) -> Result<(), Fail> {
    let alloc = rt.alloc();
    for length in [0, 1, 63, 64, 65, 127, 128, 129, 1000] {
        let clear = Bits::filled(alloc, length, false)?;
        assert_eq!(rt; clear.len(), length);
        assert_eq!(rt; clear.count(), 0);
        let set = Bits::filled(alloc, length, true)?;
        assert_eq!(rt; set.len(), length);
        assert_eq!(rt; set.count(), length);
        assert!(rt; set.get(length).is_none());
    }
    Ok(())
}

#[test]
fn turned_bits_count_only_themselves(rt: HostRuntime) -> Result<(), Fail> {
    let alloc = rt.alloc();
    let mut few = bits_of(alloc, "0011")?;
    few.not();
    assert!(rt; shows(&few, "1100"));
    for length in [0, 1, 63, 64, 65, 1000] {
        let mut bits = Bits::filled(alloc, length, false)?;
        bits.not();
        assert_eq!(rt; bits.count(), length, "of {length}");
        bits.push(false)?;
        assert_eq!(rt; bits.count(), length, "of {length} and one more");
        bits.not();
        assert_eq!(rt; bits.count(), 1, "of {length} and one more, turned");
    }
    Ok(())
}

/// Both ways to join two lists of bits, where they are as long.
fn joined(alloc: Global, left: &str, right: &str) -> Result<Option<(Bits, Bits)>, Fail> {
    let other = bits_of(alloc, right)?;
    let mut both = bits_of(alloc, left)?;
    let mut either = bits_of(alloc, left)?;
    if both.len() != other.len() || either.len() != other.len() {
        return Ok(None);
    }
    both.and(&other);
    either.or(&other);
    Ok(Some((both, either)))
}

#[test]
fn bits_are_joined_one_by_one(rt: HostRuntime) -> Result<(), Fail> {
    let alloc = rt.alloc();
    for (left, right, wanted_both, wanted_either) in [
        ("", "", "", ""),
        ("0011", "0101", "0001", "0111"),
        (OF_65, OF_65, OF_65, OF_65),
    ] {
        let Some((both, either)) = joined(alloc, left, right)? else {
            assert!(rt; false, "{left} and {right}");
            return Ok(());
        };
        assert!(rt; shows(&both, wanted_both), "{left} and {right}");
        assert!(rt; shows(&either, wanted_either), "{left} or {right}");
    }
    Ok(())
}
