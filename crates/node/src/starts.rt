// What each timer starts from, in ticks of 10 ms; the length of a burst, and the wait after it.
pub(crate) const GUARD_START: u16 = 50;

pub(crate) const WTR_START: u16 = 30_000;

pub(crate) const WTB_START: u16 = 550;

pub(crate) const BURST_START: u8 = 3;

pub(crate) const WAIT_START: u16 = 500;
