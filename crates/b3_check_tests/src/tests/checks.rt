// Runs that check lists.

use crate::tests::check_options;
use crate::tests::ended::check;
use crate::tests::failing::EndlessFile;
use b3_check::RunFault;

// A list of a right line that ends in CR LF, a wrong one, and one that is cut off.
pub const THREE_LINES: &[u8] =
    b"2d3adedff11b61f14c886e35afa036736dcd87a74d27b5c1510225d0f592e213  x\r\n\
      2d3adedff11b61f14c886e35afa036736dcd87a74d27b5c1510225d0f592e213  y\n\
      2d3adedff11b61f14c886e35afa036736dcd87a74d27b5c1510225d0f592e213 ";

pub const THREE_VERDICTS: &[u8] = b"x: OK\ny: FAILED\n";

pub const THREE_COMPLAINTS: &[u8] =
    b"b3sum: line 3: short line\nb3sum: WARNING: 2 computed checksums did NOT match\n";

// It is ended by its reads where it may have more bytes than these give, and else by its bytes.
#[test]
fn a_list_that_has_no_end(rt: HostRuntime) {
    for largest in [10_000, 100] {
        let mut shelf = EndlessFile::new();
        let asked = check_options(false, largest);
        let ended = check(&rt, rt.alloc(), &mut shelf, &["l"], &asked);
        ended.assert(&rt, "for ever", Err(RunFault::EndlessInput), b"", b"");
    }
}
