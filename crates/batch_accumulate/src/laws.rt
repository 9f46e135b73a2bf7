// What deliveries leave as it was.
ghost use Rattle.std.specs.Prelude.{◌≡◌, ℕ, List, option_map};
ghost use Rattle.std.specs.FinMap as fin;
ghost use Rattle.jam_accounts.specs.Accounts.{Accounts};
ghost use Rattle.batch_file.specs.declared.delivery.Delivery.{Delivery};
ghost use Rattle.batch_accumulate.specs.Deliveries.{none_stored, after_deliveries, undelivered};

/// Deliveries make no account and take none away. Of an account they change the preimages and the
/// histories, and nothing else.
pub fn deliveries_law()
    ensures { (slot : ℕ) (accounts : Accounts) (deliveries : List Delivery) (id : ℕ)
        → option_map undelivered (fin.get (after_deliveries slot (none_stored accounts) deliveries).accounts id) ≡ option_map undelivered (fin.get accounts id) }
{}
