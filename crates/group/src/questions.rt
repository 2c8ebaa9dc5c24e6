// The questions that several calls put: the first that is answered no is the refusal.
mod beat;
mod log;

pub(crate) use self::beat::ask_beat;
pub(crate) use self::log::{ask_log, is_own_log};
