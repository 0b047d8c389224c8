//! Refers to a change where the tables keep it.
ghost use Rattle.std.specs.Prelude.{◌≡◌};
ghost use Rattle.dump_laws.specs.dump_spec.fleet_rows.Change.{change_kind};
ghost use Rattle.dump_writer.specs.Referred.{change_referred};

use fleet_rows::json_tree::Text;
use fleet_rows::stamp_time::Moment;
use fleet_rows::{CatalogChange, DeactivateChange, ExpirationChange, FactsChange, Kind};
use kept_nodes::PackedReport;

/// A change, by reference. Contracts see the change (`change_referred`).
#[derive(Drop)]
pub enum ChangeRef<'a> {
    Facts(&'a FactsChange),
    Catalog(&'a CatalogChange),
    Report(&'a PackedReport),
    Deactivate(&'a DeactivateChange),
    Expiration(&'a ExpirationChange),
    /// A report with nothing but a certname and a producer's timestamp.
    Empty(&'a Text, Moment),
}

impl<'a> ChangeRef<'a> {
    /// The kind of its command.
    pub fn kind(&self) -> Kind
        ensures { result ≡ change_kind (change_referred self.now) }
    {
        match self {
            ChangeRef::Facts(_) => Kind::Facts,
            ChangeRef::Catalog(_) => Kind::Catalog,
            ChangeRef::Report(_) => Kind::Report,
            ChangeRef::Deactivate(_) => Kind::Deactivate,
            ChangeRef::Expiration(_) => Kind::Expiration,
            ChangeRef::Empty(_, _) => Kind::Report,
        }
    }
}
