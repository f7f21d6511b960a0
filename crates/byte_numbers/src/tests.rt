use crate::{
    are_short_numbers, fill_number, fill_short_number, fill_short_numbers, number_bytes, number_of,
    push_number, push_short_number, push_short_numbers, short_number_of, short_numbers_of,
};
use std::test::Fail;

#[test]
fn spells_as_the_documents_of_rust_and_byteorder(rt: HostRuntime) -> Result<(), Fail> {
    let long = [0x12u8, 0x34, 0x56, 0x78];
    let pairs = [2u8, 5, 3, 0];
    assert_eq!(rt; number_of(&long), 0x1234_5678);
    assert_eq!(rt; number_bytes(0x1234_5678), long);
    assert_eq!(rt; short_number_of(&pairs[..2]), 517);
    assert_eq!(rt;
        short_numbers_of(rt.alloc(), &pairs)?.as_slice(),
        &[517u16, 768][..]
    );
    assert_eq!(rt; are_short_numbers(&[517, 768], &pairs), true);
    assert_eq!(rt; are_short_numbers(&[517, 769], &pairs), false);
    assert_eq!(rt; are_short_numbers(&[517], &pairs[..3]), true);
    let mut filled = [0u8; 10];
    fill_number(0x1234_5678, &mut filled[..4]);
    fill_short_number(517, &mut filled[4..6]);
    fill_short_numbers(&[517, 768], &mut filled[6..]);
    let mut pushed = Vec::new(rt.alloc());
    push_number(&mut pushed, 0x1234_5678)?;
    push_short_number(&mut pushed, 517)?;
    push_short_numbers(&mut pushed, &[517, 768])?;
    assert_eq!(rt; pushed.as_slice(), &filled[..]);
    assert_eq!(rt;
        pushed.as_slice(),
        &[0x12u8, 0x34, 0x56, 0x78, 2, 5, 2, 5, 3, 0][..]
    );
    Ok(())
}
