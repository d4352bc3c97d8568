//! The codes of single bytes, compared with libzvbi.
use crate::asserting::assert_same_for_case;
use fixtures::{MIRROR, PAR, UNHAM, UNPAR, WRONG};
use ttx_packet::{is_odd, mirror, par, unham};

#[test]
fn codes_agree_with_libzvbi(rt: HostRuntime) {
    for byte in 0..=255u8 {
        let at = byte as usize;
        assert_same_for_case(&rt, &unham(byte).unwrap_or(WRONG), &UNHAM[at], &byte);
        let code = if is_odd(byte) { byte % 0x80 } else { WRONG };
        assert_same_for_case(&rt, &code, &UNPAR[at], &byte);
        assert_same_for_case(&rt, &par(byte % 0x80), &PAR[at], &byte);
        assert_same_for_case(&rt, &mirror(byte), &MIRROR[at], &byte);
    }
}
