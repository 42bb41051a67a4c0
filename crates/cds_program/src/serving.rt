//! A folder that is served.

ghost use Rattle.std.specs.Prelude.{◌≡◌, ◌⊎◌, ◌≤◌};
ghost use Rattle.cds_outside.specs.Outside.{Rose};
ghost use Rattle.cds_serve.specs.Life.{EndsLife, FoldersBack};

use cds_outside::{Door, Folder, NoGate, Outside, Runtime, Sink};
use cds_serve::serve;
use std::alloc::Global;
use std::marker::Send;

/// What is served: the folder at a path, at a port, for this many connections.
#[derive(Clone, Copy)]
pub struct Service<'a> {
    pub port: u16,
    pub folder: &'a str,
    pub requests: u32,
}

/// Serves a folder, and answers the status of `serve`.
pub fn serve_folder<R: Runtime, K: Sink, O: Outside>(
    rt: &R,
    alloc: Global,
    service: &Service<'_>,
    sink: &mut K,
    outside: &mut O,
) -> u8
where
    <O::D as Door>::Conn: Send,
    <O::F as Folder>::File: Send,
    ensures ends { EndsLife service.now.port service.now.folder.now service.now.requests result
        (record { outside = O.told outside.old; sink = K.told sink.old })
        (record { outside = O.told outside.new; sink = K.told sink.new }) }
    ensures folders_back { FoldersBack 4 (O.told outside.old).ended (O.told outside.new).ended }
    ensures ended_links_stay { (O.told outside.new).ended_links ≡ (O.told outside.old).ended_links }
    ensures write_fault { result ≡ 3 → Rose (K.told sink.old).faults (K.told sink.new).faults }
    ensures service_fault { result ≡ 7 → Rose (O.told outside.old).faults (O.told outside.new).faults }
    ensures known { (result ≡ 0) ⊎ ((result ≡ 3) ⊎ ((result ≡ 4) ⊎ (result ≡ 7))) }
{
    serve(
        rt,
        alloc,
        service.port,
        service.folder,
        service.requests,
        sink,
        outside,
        &mut NoGate,
    )
}
