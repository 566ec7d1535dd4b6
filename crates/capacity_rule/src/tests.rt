//! Capacities and coefficients that are known.

use super::*;

#[test]
fn capacities_and_coefficients_are_known(rt: HostRuntime) {
    for (size, local, q, want) in [
        (0, 0, 0, 8),
        (100, 120, 8_192, 46),
        (2_000, 2_010, 8_192, 511),
        (10_000, 0, 0, 1_024),
        (65_535, 4_294_967_295, 65_535, 1_024),
    ] {
        assert_eq!(rt; capacity(size, local, q), want);
    }
    assert_eq!(rt; next_q(1, 1, 1), 65_534);
    assert_eq!(rt; next_q(0, 0, 0), 0);
    assert_eq!(rt; next_q(10, 20, 100), 6_554);
    assert_eq!(rt; next_q_failed(8_192), 16_385);
    assert_eq!(rt; next_q_failed(65_535), 65_534);
}
