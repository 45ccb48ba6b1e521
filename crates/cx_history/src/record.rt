use cx_items::Item;
use cx_names::ThreadNo;

/// What each thread of a scenario did: a list for each thread, by its number.
#[derive(Drop)]
pub struct Record {
    /// The version of the scenario.
    pub version: u32,
    pub lists: Vec<List>,
}

/// The list of a thread; a thread that wasn't started has none, and no item.
#[derive(Drop)]
pub struct List {
    pub started: bool,
    pub items: Items,
}

/// Items in the order in which their thread made them.
#[derive(Drop)]
pub struct Items {
    pub items: Vec<Item>,
}

/// Threads by their numbers.
#[derive(Drop)]
pub struct Threads {
    pub threads: Vec<ThreadNo>,
}
