mod playing;
mod session;
mod told;
mod transcripts;
mod usage;
