//! The token of a trial, and the key to an engine's own begin and finish.

/// The token of an open trial. It is not `Drop`: only `open` makes one, and only `end` uses it up.
pub struct Trial {
    sealed: (),
}

/// What an engine's `begin` and `finish` are called with. Only this crate makes one.
#[derive(Drop)]
pub struct Key {
    sealed: (),
}

/// The token of a trial that has just begun.
pub(crate) fn begun() -> Trial {
    Trial { sealed: () }
}

/// Uses a token up.
pub(crate) fn spent(trial: Trial) {
    let Trial { sealed: _ } = trial;
}

/// A new key, for one call.
pub(crate) fn cut() -> Key {
    Key { sealed: () }
}
