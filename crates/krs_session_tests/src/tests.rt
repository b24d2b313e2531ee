mod clock;
mod serve;
mod session;
mod wire;
