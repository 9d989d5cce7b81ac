//! Notices: what watches show after a change.
ghost use Rattle.std.specs.Prelude.{◌≡◌, map};
ghost use Rattle.store_watch.specs.Rows.{telling_of};

use std::marker::Model;
use store_read::Snapshot;

/// What a watch shows now.
#[derive(Debug, Drop)]
pub struct Notice {
    /// The place of the watch, in order of start.
    pub place: usize,
    pub snapshot: Snapshot,
    /// Whether the data or the missing mark differs from what the watch kept.
    pub told: bool,
}

/// Notices in order of place, seen as what each tells.
#[derive(Debug, Drop)]
pub struct Notices {
    pub(crate) list: Vec<Notice>,
}

impl Model for Notices {
    ghost use Rattle.std.specs.Prelude.{List};
    ghost use Rattle.std.specs.Coded.{coded_list};
    ghost use Rattle.store_watch.specs.Codes.{coded_telling};
    ghost use Rattle.store_watch.specs.Watching.{Telling};

    ghost Value = { List Telling };

    ghost coded = { coded_list coded_telling };

    ghost use Rattle.store_watch.specs.Rows.{tellings_of};

    ghost view = { λ n. tellings_of n.list.items };
}

impl Notices {
    /// The notices; takes no memory.
    pub fn as_slice(&self) -> &[Notice]
        ensures { map telling_of result.now ≡ self.now }
    {
        self.list.as_slice()
    }
}
