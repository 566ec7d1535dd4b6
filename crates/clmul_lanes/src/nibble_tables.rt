//! Tables that are looked up by the four bits of a nibble.

/// Entry j of sixteen is the exclusive or of those of the four terms at which j has a 1, the first at its lowest bit.
macro_rules! nibble_sums {
    ($one:expr, $two:expr, $four:expr, $eight:expr) => {{
        let (one, two, four, eight) = ($one, $two, $four, $eight);
        let three = one ^ two;
        let (five, six, seven) = (one ^ four, two ^ four, three ^ four);
        [
            0,
            one,
            two,
            three,
            four,
            five,
            six,
            seven,
            eight,
            one ^ eight,
            two ^ eight,
            three ^ eight,
            four ^ eight,
            five ^ eight,
            six ^ eight,
            seven ^ eight,
        ]
    }};
}

pub(crate) use nibble_sums;
