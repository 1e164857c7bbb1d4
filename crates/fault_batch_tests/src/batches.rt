// Batches: answers, refusals, and workers at one board.
mod answers;
mod refusals;
mod workers;
