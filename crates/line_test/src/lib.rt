// Drives both kinds of line with the same sends, and looks that what is received is what was sent.

#![tactic(auto)]

#[cfg(test)]
mod driver;
mod kinds;
#[cfg(test)]
mod tests;
