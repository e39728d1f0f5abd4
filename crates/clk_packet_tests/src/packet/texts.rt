//! Whole texts, and numbers in them.

use clk_packet::{
    FailingSink, FailingSource, Fault, number_before, number_in, read_up_to, write_all,
};
use std::alloc::{AllocError, Global};
use std::test::Fail;

#[test]
fn a_text_is_read_to_its_end_or_so_far(rt: HostRuntime) -> Result<(), Fail> {
    let mut source = FailingSource::new(b"abcde".to_vec(rt.alloc())?, 6);
    assert_eq!(rt;
        read_up_to(rt.alloc(), &mut source, 2)?.as_slice(),
        b"ab".as_slice()
    );
    assert_eq!(rt;
        read_up_to(rt.alloc(), &mut source, 9)?.as_slice(),
        b"cde".as_slice()
    );
    let mut short = FailingSource::new(b"abcde".to_vec(rt.alloc())?, 4);
    assert_eq!(rt;
        read_up_to(rt.alloc(), &mut short, 5).err(),
        Some(Fault::Read)
    );
    Ok(())
}

// A text of so many bytes, of which no two within 251 are the same.
fn text_of(alloc: Global, len: usize) -> Result<Vec<u8>, AllocError> {
    let mut text = Vec::new(alloc);
    for place in 0..len {
        text.push((place % 251) as u8)?;
    }
    Ok(text)
}

// Texts about as long as what is read at a time, or twice that.
#[test]
fn long_texts_are_read_whole(rt: HostRuntime) -> Result<(), Fail> {
    let alloc = rt.alloc();
    for len in [16_383, 16_384, 16_385, 32_769] {
        let mut source = FailingSource::new(text_of(alloc, len)?, 40_000);
        let read = read_up_to(alloc, &mut source, 40_000)?;
        assert_eq!(rt; read.as_slice(), text_of(alloc, len)?.as_slice());
    }
    let mut short = FailingSource::new(text_of(alloc, 16_385)?, 16_384);
    assert_eq!(rt;
        read_up_to(alloc, &mut short, 40_000).err(),
        Some(Fault::Read)
    );
    Ok(())
}

#[test]
fn a_text_is_written_or_a_front_of_it(rt: HostRuntime) -> Result<(), Fail> {
    let mut sink = FailingSink::new([0; 3].to_vec(rt.alloc())?);
    assert_eq!(rt; write_all(&mut sink, b"ab"), Ok(()));
    assert_eq!(rt; write_all(&mut sink, b"cd"), Err(Fault::Write));
    assert_eq!(rt; sink.taken(), b"abc".as_slice());
    Ok(())
}

#[test]
fn a_number_is_digits_in_its_range(rt: HostRuntime) {
    let texts: [(&[u8], _); 5] = [
        (b"0064", Some(64)),
        (b"63", None),
        (b"65", None),
        (b"+64", None),
        (b"", None),
    ];
    for (text, expected) in texts {
        assert_eq!(rt; number_in(text, 64, 64), expected);
    }
}

// Numbers that end within the first eight bytes of a text, and behind them.
#[test]
fn a_number_before_a_byte_is_found_wherever_it_ends(rt: HostRuntime) {
    let texts: [(&[u8], Option<(u64, &[u8])>); 8] = [
        (b"7,", Some((7, b""))),
        (b"7,rest of it", Some((7, b"rest of it"))),
        (b"0000007,rest", Some((7, b"rest"))),
        (b"00000007,rest", Some((7, b"rest"))),
        (b"0000064,rest", None),
        (b"7", None),
        (b",7", None),
        (b"7;rest of it", None),
    ];
    for (text, expected) in texts {
        assert_eq!(rt; number_before(text, b',', 1, 63), expected);
    }
}
