//! Laws of legal histories. Each is what the contract of an empty function says.
ghost use Rattle.css_history.specs.Terms.{Terms};
ghost use Rattle.css_history.specs.Laws.{ValuesAreOwn, StopsAreFirst, SeatsKnow};

/// Whatever the order of its entries, a legal history has for each finished task what it makes by itself over the values of its inputs,
/// and for each stopped one its own stop.
pub fn values_are_tasks_own()
    ensures { (b : Terms) → ValuesAreOwn b }
{}

/// A task that stopped, and below which all tasks are finished, is the first that stops.
pub fn first_stops_are_first()
    ensures { (b : Terms) → StopsAreFirst b }
{}

/// What a seat knows goes on while others make their entries.
pub fn facts_remain()
    ensures { (b : Terms) → SeatsKnow b }
{}
