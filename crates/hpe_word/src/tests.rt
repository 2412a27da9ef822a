use crate::encode_word;
use hpe_base::Profile;
use hpe_code::CodeTables;
use std::test::Fail;

/// The bits of the default frame marker.
const FRAME_MARKER: [u8; 32] = [
    0, 0, 0, 1, 1, 0, 1, 0, 1, 1, 0, 0, 1, 1, 1, 1, 1, 1, 1, 1, 1, 1, 0, 0, 0, 0, 0, 1, 1, 1, 0, 1,
];

#[test]
fn a_frame_of_zeros(rt: HostRuntime) -> Result<(), Fail> {
    let p = Profile::basic();
    let tables = CodeTables::new(rt.alloc())?;
    let mut block = Vec::from_slice(rt.alloc(), &FRAME_MARKER)?;
    block.resize(p.rate().block(), 0)?;
    assert!(rt; block.iter().all(|bit| *bit < 2));
    let mut symbols = vec![in rt.alloc(); 0; p.order().symbols()]?;
    encode_word(&tables, &p, &block, &mut symbols);
    assert_eq!(rt; &symbols[..2], [12, 14].as_slice());
    Ok(())
}
