//! What a node does to a packet that it visits (`ioam_node_visit`, RFC 9197, RFC 9326 and RFC 9486).
mod export_rows;
mod foreign_rows;
mod leaving;
mod lines;
mod passing;
mod rows;
mod tunnel_rows;
mod visits;
