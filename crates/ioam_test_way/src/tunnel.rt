//! The tunnel of a flow (`ioam_tunnel`, RFC 9486).
mod rows;
mod tunnels;
