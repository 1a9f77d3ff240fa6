//! What holds of this crate's definitions.

ghost use Rattle.std.specs.Prelude.{◌≡◌, ◌↔◌, ℕ, List, Some, Ok, Err};
ghost use Rattle.bz_requests.specs.Addresses.{AreAddresses, IsAddress, addresses_in};
ghost use Rattle.bz_requests.specs.Fields.{AreFields, fields};
ghost use Rattle.bz_requests.specs.Lines.{IsFirstBad};
ghost use Rattle.bz_requests.specs.Requests.{AreRequests, IsRequest, Request, request_in, requests_in};

/// The addresses that are read of an input are those that its lines say. Of an input that has a line
/// that isn't well formed, the number of its first such line is read.
pub fn addresses_are_read()
    ensures addresses { (text addrs : List ℕ) → (addresses_in text ≡ Ok addrs) ↔ AreAddresses text addrs }
    ensures line { (text : List ℕ) (n : ℕ) → (addresses_in text ≡ Err n) ↔ IsFirstBad IsAddress text n }
{}

/// The fields that a text is cut into are those that it is made of.
pub fn fields_are_exact()
    ensures { (text : List ℕ) (all : List (List ℕ)) → (fields text ≡ all) ↔ AreFields text all }
{}

/// The request that is read of a line's content is the one that it spells. The requests that are
/// read of an input are those that its lines say. Of any other input, the number of its first line
/// that isn't well formed is read.
pub fn requests_are_read()
    ensures request { (text : List ℕ) (request : Request) → (request_in text ≡ Some request) ↔ IsRequest text request }
    ensures requests { (text : List ℕ) (requests : List Request) → (requests_in text ≡ Ok requests) ↔ AreRequests text requests }
    ensures line { (text : List ℕ) (n : ℕ) → (requests_in text ≡ Err n) ↔ IsFirstBad IsRequest text n }
{}
