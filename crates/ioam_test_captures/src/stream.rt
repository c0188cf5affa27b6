//! Captures that are read in pieces: their reader and writer (`ioam_pcap`).
mod captures;
mod pcap;
