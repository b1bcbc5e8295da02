// The calls behind the exports, in each mode. The exports themselves are called by C programs.

use crate::calls::{
    append, deriving_hasher, keyed_hasher, plain_hasher, read, read_from, start_over,
};

const KEY: &[u8; 32] = b"whats the Elvish word for friend";

const CONTEXT: &[u8] = b"BLAKE3 2019-12-27 16:29:52 test vectors context";

#[test]
fn a_hasher_goes_on_after_its_output(rt: HostRuntime) {
    let mut hasher = plain_hasher();
    let mut out = [0; 4];
    append(&mut hasher, b"ab");
    read(&hasher, &mut out);
    append(&mut hasher, b"c");
    read(&hasher, &mut out);
    assert_eq!(rt; out, [0x64, 0x37, 0xb3, 0xac]);
    read_from(&hasher, 4, &mut out);
    assert_eq!(rt; out, [0x38, 0x46, 0x51, 0x33]);
}

#[test]
fn a_hasher_starts_over_in_its_mode(rt: HostRuntime) {
    let mut keyed = keyed_hasher(KEY);
    let mut deriving = deriving_hasher(CONTEXT);
    let mut out = [0; 4];
    append(&mut keyed, b"abc");
    start_over(&mut keyed);
    read(&keyed, &mut out);
    assert_eq!(rt; out, [0x92, 0xb2, 0xb7, 0x56]);
    append(&mut deriving, b"abc");
    start_over(&mut deriving);
    read(&deriving, &mut out);
    assert_eq!(rt; out, [0x2c, 0xc3, 0x97, 0x83]);
}
