// Connections over sockets of this machine, and streams that a signal interrupts.
mod loopback;
mod signals;
