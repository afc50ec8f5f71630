// What a caller of a run prints with `{:?}`.
use super::runs::config_of;
use leader::{
    Catalog, CatalogFault, Change, Clock, Devices, End, Entry, NoWatch, Outcome, Point, Position,
    ReadFault, ReadSource, Reader, Sink, Source, StoreNames, Tables, Walk, WriteSink,
};
use std::fmt::Debug;
use std::test::Fail;

// The caller's own types need it too: what a thing of the library holds of theirs is printed with it.
fn is_printed<T: Debug>() -> bool {
    true
}

fn are_devices_printed<R: Source + Debug, W: Sink + Debug, C: Clock + Debug>() -> bool {
    is_printed::<Devices<R, W, C>>()
}

fn is_reader_printed<N: StoreNames + Debug>() -> bool {
    is_printed::<Reader<'_, N>>()
}

#[test]
fn what_a_caller_holds_is_printed(rt: HostRuntime) -> Result<(), Fail> {
    assert!(rt; is_printed::<Catalog>() && is_printed::<CatalogFault>() && is_printed::<Tables>());
    assert!(rt;
        is_printed::<ReadSource<u8>>() && is_printed::<WriteSink<u8>>() && is_printed::<NoWatch>()
    );
    assert!(rt; is_printed::<Outcome>() && is_printed::<Entry>() && is_printed::<Change>());
    assert!(rt; is_printed::<Walk<'_>>() && is_printed::<Position>() && is_printed::<ReadFault>());
    let config = format!(in rt.alloc(); "{:?} {:?}", config_of(2, 64), Point::After(1))?;
    assert_eq!(rt;
        config.as_str(),
        "Config { workers: 2, ring: 64, spool: 1073741824, skip: 0 } After(1)"
    );
    let end = End::HeldKey {
        xid: 900,
        holder: 700,
    };
    let ends = format!(in rt.alloc(); "{:?} {:?}", NoWatch, end)?;
    assert_eq!(rt; ends.as_str(), "NoWatch HeldKey { xid: 900, holder: 700 }");
    Ok(())
}
