//! GSYM files: heads, tables, lines, inlined calls, searches and answers.

mod answers;
mod calling;
mod heads;
mod inlines;
mod lines;
mod resolvers;
mod searches;
mod tables;
