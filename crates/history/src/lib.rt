#![tactic(auto)]

ghost use Rattle.history.specs.Entries.{OrdersAgree, OrdersGrow, FramesFit};
ghost use Rattle.history.specs.Laws.{HistoriesAgree, NoIdTwice, NothingInvented, HistoriesGrow};
ghost use Rattle.history.specs.Shortcuts.{ShortcutsFail};
ghost use Rattle.history.specs.Worked.{Worked};

/// Of any two tokens of a lawful history, the decisions of one begin those of the other.
#[tactic(auto, using(crate::proofs::Laws::histories_agree))]
pub fn histories_agree<E>()
    ensures { HistoriesAgree E }
{}

/// Where boxes put forward only ids that are not decided, no id is decided twice or proposed beside its decision.
#[tactic(auto, using(crate::proofs::Laws::no_id_twice))]
pub fn no_id_twice<E>()
    ensures { NoIdTwice E }
{}

/// Where boxes put forward only what was sent, nothing else is proposed or decided.
#[tactic(auto, using(crate::proofs::Laws::nothing_invented))]
pub fn nothing_invented<E>()
    ensures { NothingInvented E }
{}

/// A lawful history stays lawful as it grows, also by a token of a lower round than others that it has.
#[tactic(auto, using(crate::proofs::Growth::grows))]
pub fn histories_grow<E>()
    ensures { HistoriesGrow E }
{}

/// A lawful history of a plan's orders is sound: its tokens agree, repeat and invent nothing, and are lawful frames.
pub fn orders_agree()
    ensures { OrdersAgree }
{}

/// A lawful history of a plan's orders grows by tokens, and stays lawful as orders are sent.
#[tactic(auto, using(crate::proofs::Orders::orders_grow))]
pub fn orders_grow()
    ensures { OrdersGrow }
{}

/// A frame's token is its sender and what a history keeps of it.
pub fn frames_fit()
    ensures { FramesFit }
{}

/// A history worked out by hand, with every way in which a token comes about, is lawful and so sound.
#[tactic(auto, using(crate::proofs::Worked::is_worked))]
pub fn history_worked()
    ensures { Worked }
{}

/// Where one of the rules is broken once, a history may split or decide an id twice.
#[tactic(auto, using(crate::proofs::Shortcuts::shortcuts_fail))]
pub fn shortcuts_fail()
    ensures { ShortcutsFail }
{}
