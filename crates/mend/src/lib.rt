// The mender, on slices: doubled points and spikes are taken out of traced contours, in place. `mend` and `mend_job` are for users; the
// other modules are their steps. A contour is walked twice: once to count what it loses, and then, if the list has room for all, to write.
#![tactic(auto)]

mod lose; // one point is lost
mod pass; // the points are passed, one after the other
mod ends; // what the two ends still lose
mod walk; // one contour is walked
mod close; // the points that are kept close up
mod contours; // all contours of a job
pub mod job; // what is checked, and both calls
