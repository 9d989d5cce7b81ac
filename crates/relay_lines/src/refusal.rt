//! Why a line is refused.
ghost use Rattle.std.specs.Prelude.{◌≡◌};
ghost use Rattle.relay_lines.specs.RefusalShown.{limited_shown, refusal_shown};
ghost use Rattle.relay_machine.specs.Refusals as model;

use plan_ir::PayloadFault;

/// What there may be no more of.
#[derive(Clone, Copy, Debug)]
pub enum Limited {
    /// 10,000 live handles.
    Handles,
    /// 1,000 live layers.
    Layers,
    /// 10,000 live watches.
    Watches,
}

impl Limited {
    /// The kind, as it is printed.
    pub fn kind(self) -> &'static str
        ensures { result.now ≡ model.limited_name (limited_shown self) }
    {
        match self {
            Limited::Handles => "handles",
            Limited::Layers => "layers",
            Limited::Watches => "watches",
        }
    }

    /// How many there may be.
    pub fn most(self) -> u64
        ensures { result ≡ model.most (limited_shown self) }
    {
        match self {
            Limited::Handles => 10_000,
            Limited::Layers => 1_000,
            Limited::Watches => 10_000,
        }
    }
}

/// Why a line is refused.
#[derive(Clone, Copy)]
pub enum Refusal<'a> {
    /// The line is no JSON.
    NotJson,
    /// The line is no event, its updates apart.
    EventShape,
    /// The updates of the line are no commands.
    UpdateShape,
    /// The line has more than 8 MiB.
    LineTooLong,
    /// The project has no operation of this name.
    UnknownOperation(&'a str),
    /// The project has no fragment of this name.
    UnknownFragment(&'a str),
    /// No handle of this name is live.
    UnknownHandle(&'a str),
    /// A handle of this name is live.
    HandleTaken(&'a str),
    /// A live watch was started with the handle of this name.
    HandleInUse(&'a str),
    /// No layer of this name is live.
    UnknownLayer(&'a str),
    /// A layer of this name is live.
    LayerTaken(&'a str),
    /// No watch of this name is live.
    UnknownWatch(&'a str),
    /// A watch of this name is live.
    WatchTaken(&'a str),
    /// A command names this, which is no object type of the schema.
    UnknownType(&'a str),
    /// The variable of this name has no value, and has to have one.
    MissingVariable(&'a str),
    /// The variable of this name was given a value that does not fit its type.
    UnfitVariable(&'a str),
    /// A response has this fault.
    Payload(&'a PayloadFault),
    /// As many as there may be are live.
    TooMany(Limited),
}

impl<'a> Refusal<'a> {
    /// The code, as it is printed.
    pub fn code(self) -> u64
        ensures { result ≡ model.code_of (refusal_shown self.entry) }
    {
        match self {
            Refusal::NotJson => 1,
            Refusal::EventShape => 2,
            Refusal::UpdateShape => 3,
            Refusal::LineTooLong => 4,
            Refusal::UnknownOperation(_) => 5,
            Refusal::UnknownFragment(_) => 6,
            Refusal::UnknownHandle(_) => 7,
            Refusal::HandleTaken(_) => 8,
            Refusal::HandleInUse(_) => 9,
            Refusal::UnknownLayer(_) => 10,
            Refusal::LayerTaken(_) => 11,
            Refusal::UnknownWatch(_) => 12,
            Refusal::WatchTaken(_) => 13,
            Refusal::UnknownType(_) => 14,
            Refusal::MissingVariable(_) => 15,
            Refusal::UnfitVariable(_) => 15,
            Refusal::Payload(_) => 16,
            Refusal::TooMany(_) => 17,
        }
    }

    /// The name, as it is printed.
    pub fn name(self) -> &'static str
        ensures { result.now ≡ model.name_of (refusal_shown self.entry) }
    {
        match self {
            Refusal::NotJson => "NotJson",
            Refusal::EventShape => "EventShape",
            Refusal::UpdateShape => "UpdateShape",
            Refusal::LineTooLong => "LineTooLong",
            Refusal::UnknownOperation(_) => "UnknownOperation",
            Refusal::UnknownFragment(_) => "UnknownFragment",
            Refusal::UnknownHandle(_) => "UnknownHandle",
            Refusal::HandleTaken(_) => "HandleTaken",
            Refusal::HandleInUse(_) => "HandleInUse",
            Refusal::UnknownLayer(_) => "UnknownLayer",
            Refusal::LayerTaken(_) => "LayerTaken",
            Refusal::UnknownWatch(_) => "UnknownWatch",
            Refusal::WatchTaken(_) => "WatchTaken",
            Refusal::UnknownType(_) => "UnknownType",
            Refusal::MissingVariable(_) => "Variables",
            Refusal::UnfitVariable(_) => "Variables",
            Refusal::Payload(_) => "Payload",
            Refusal::TooMany(_) => "TooMany",
        }
    }
}
