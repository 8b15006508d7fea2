//! Tests of what no contract of the program states.
mod feed;
mod report;
mod sheet;
