// Sources and sinks that tell nothing of their bytes.
mod objects;
mod runs;
