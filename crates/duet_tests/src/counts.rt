//! How often rounds ended in each way.

use pool_rules::Ending;

/// How often rounds ended in each way.
#[derive(Clone, Copy)]
pub(crate) struct Counts {
    pub(crate) first: u32,
    pub(crate) extension: u32,
    pub(crate) extension2: u32,
    pub(crate) fallback: u32,
}

/// No round.
pub(crate) const NONE: Counts = Counts {
    first: 0,
    extension: 0,
    extension2: 0,
    fallback: 0,
};

impl Counts {
    /// One more round.
    pub(crate) fn count(&mut self, ending: Ending) {
        let place = match ending {
            Ending::First => &mut self.first,
            Ending::Extension => &mut self.extension,
            Ending::Extension2 => &mut self.extension2,
            Ending::Fallback => &mut self.fallback,
        };
        *place = place.saturating_add(1);
    }
}
