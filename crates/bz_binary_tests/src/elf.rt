//! ELF files: their symbols, resolvers and calls.

mod calling;
mod files;
mod made;
mod names;
mod resolvers;
