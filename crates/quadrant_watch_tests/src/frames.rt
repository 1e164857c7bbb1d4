// Frames of a running growth.
mod answers;
mod commands;
mod meetings;
