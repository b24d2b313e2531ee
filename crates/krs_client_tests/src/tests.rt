mod growths;
mod remote;
mod script;
