use crate::reply_to_text;
use std::io::Read;
use std::test::Fail;
use text::read_front;

/// Whether the reply to the text is as expected.
fn says(text: &[u8], expected: &[u8]) -> bool {
    let reply = reply_to_text(text);
    reply.as_bytes() == expected
}

#[test]
fn answers(rt: HostRuntime) {
    let text = b"kind=latin\nsize=2\ngrid=1221\nmap=-\nclues=....\n";
    assert!(rt; says(text, b"rival=2112\ndiffers=####\n"));
    let text = b"kind=latin\nsize=2\ngrid=1221\nmap=-\nclues=..#.\n";
    assert!(rt; says(text, b"rival=none\n"));
}

#[test]
fn refusals(rt: HostRuntime) {
    assert!(rt; says(b"", b"refused=11\nline=1\n"));
    assert!(rt; says(b"kind=latin\nsize=2\ngrid=1221\n", b"refused=11\nline=4\n"));
    assert!(rt; says(b"kind=latin\nsize=7\n", b"refused=12\nline=2\n"));
    assert!(rt; says(b"kind=latin\nsize=7", b"refused=11\nline=2\n"));
    let text = b"kind=latin\nsize=2\ngrid=1212\nmap=-\nclues=....\n";
    assert!(rt; says(text, b"refused=15\nline=3\n"));
    let text = b"kind=latin\nsize=2\ngrid=1212\nmap=-\nclues=...-\n";
    assert!(rt; says(text, b"refused=11\nline=5\n"));
    let text = b"kind=latin\nsize=2\ngrid=1221\nmap=-\nclues=....\n\n";
    assert!(rt; says(text, b"refused=11\nline=6\n"));
}

#[test]
fn input_in_pieces(rt: HostRuntime) -> Result<(), Fail> {
    let mut buffer = [0; 8];
    let front: &[u8] = b"kin";
    let rest: &[u8] = b"d=latin";
    let mut input = front.chain(rest);
    assert_eq!(rt; read_front(&mut input, &mut buffer)?, 8);
    assert!(rt; &buffer == b"kind=lat");
    assert_eq!(rt; read_front(&mut input, &mut buffer)?, 2);
    assert!(rt; &buffer == b"innd=lat");
    Ok(())
}
