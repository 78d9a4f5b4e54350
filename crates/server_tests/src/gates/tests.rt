// What no clause says: nodes run apart from each other, and a member that is held bounds what its
// primary takes; a listener is open until it is closed, and a client sees that its stream ended.

mod gates;
mod lagging;
mod listeners;
