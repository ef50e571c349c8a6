//! The shards that an edit's notices name.

ghost use Rattle.std.specs.Prelude.{vec_len};
ghost use Rattle.std.specs.List.{FoldsTo, range_with_len};

use scrib_shards::service::Service;

/// Calls `name` with the number of each shard of the service, rising from 0.
pub(crate) fn name_shards<F: FnMut(usize)>(service: &Service, mut name: F)
    requires { F.IsAlwaysCallable name }
    ensures { (last : F)
        × FoldsTo (λ p x q. F.step p x tt q) name (range_with_len 0 (vec_len service.now.shards)) last }
{
    let shards = service.shards();
    for shard in 0..shards {
        name(shard);
    }
}
