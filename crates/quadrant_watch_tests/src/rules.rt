// Two-input rules: their texts, their tiles, and what grows from these.
mod cells;
mod commands;
mod quadrants;
mod texts;
mod tiles;
