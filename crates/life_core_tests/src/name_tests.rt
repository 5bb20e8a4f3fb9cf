// The names of a program.
use life_core::Names;
use life_types::NameId;
use std::test::Fail;

#[test]
fn tells_names(rt: HostRuntime) -> Result<(), Fail> {
    let mut texts = Vec::new(rt.alloc());
    texts.push(b"f".to_vec(rt.alloc())?)?;
    texts.push(b"x1".to_vec(rt.alloc())?)?;
    let mut first = Vec::new(rt.alloc());
    first.push(NameId(1))?;
    let mut members = Vec::new(rt.alloc());
    members.push(first)?;
    let names = Names { texts, members };
    assert_eq!(rt; names.text(NameId(1)), b"x1".as_slice());
    assert_eq!(rt; names.member(0, 0), NameId(1));
    Ok(())
}
