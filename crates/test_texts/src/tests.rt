//! Words, bytes, texts, histories and scenarios, with values from outside.
mod admit;
mod asked;
mod bound;
mod commands;
mod cut;
mod demands;
mod hints;
mod histories;
mod printed;
mod read;
mod refused;
mod report;
mod scenarios;
mod streams;
mod text;
mod words;
mod wrong_words;
