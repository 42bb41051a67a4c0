//! Laws of what a store shows. Calling a function gives its law.

ghost use Rattle.cds_store.specs.Laws as laws;

/// States that a store which stands for a history of scans shows the catalog that is counted afresh over them, and its number.
pub fn stores_show_their_catalogs()
    ensures { laws.stores_show_their_catalogs }
{}
