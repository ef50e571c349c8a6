//! The oldest message in flight from one role to another.

ghost use Rattle.std.specs.Prelude.{◌≡◌, ℕ, List, Some};
ghost use Rattle.std.specs.Option.{option_copied};
ghost use Rattle.scrib_types.specs.declared.event.Event.{Event};
ghost use Rattle.scrib_types.specs.Permitted.{IsPermitted};
ghost use Rattle.scrib_types.specs.Queues.{flights};
ghost use Rattle.scrib_global.specs.Next.{oldest_of};
ghost use Rattle.scrib_record.specs.Configurations as conf;
ghost use Rattle.scrib_record.specs.Places.{place_in};
ghost use Rattle.scrib_record.specs.Versions.{meaning_of};

use scrib_record::configuration::Configuration;
use scrib_record::version::Version;
use scrib_types::name::Role;
use scrib_types::shared_message::SharedMessage;

/// Returns the oldest message in flight from the role to the one that has this place, or `None` where none is.
pub fn oldest<'a>(
    version: &Version,
    configuration: &'a Configuration,
    from: &Role,
    to: usize,
) -> Option<&'a SharedMessage>
    requires reached { conf.IsReached (meaning_of version.now) version.now.machines configuration.now }
    requires declared { (role : List ℕ) × place_in (meaning_of version.now).roles role ≡ Some to }
    ensures { (log : List Event) → conf.LeadsTo (meaning_of version.now) version.now.machines log configuration.now
        → IsPermitted (meaning_of version.now) log
        → (role : List ℕ) → place_in (meaning_of version.now).roles role ≡ Some to
        → option_copied result ≡ oldest_of (flights from.now role log) }
{
    let sender = version.place_of(from)?;
    let Some(numbering) = &configuration.numbering else {
        return None;
    };
    let number = configuration.queues.front(sender, to)?;
    let exchange = numbering.exchanges().get(*number)?;
    Some(&exchange.message)
}
